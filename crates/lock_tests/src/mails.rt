// Each call once, with ample memory: two pairs of nodes, one message sent, and one sent into room that was made.
ghost use Rattle.std.specs.Prelude.{◌≤◌};

use dlm_modes::{MailWord, Mode};
use glock_names::LockName;
use mail_queues::{Body, Mail, Message};

const LOCK: LockName = LockName { kind: 2, number: 9 };

fn message(body: Body) -> Message {
    Message {
        generation: 4,
        body,
    }
}

// Whether there was room, so that the message was sent.
fn send_into_room(mail: &mut Mail, from: u8, to: u8, message: Message) -> bool
    requires from { from ≤ 8 }
    requires to { to ≤ 8 }
{
    if mail.room(from, to) == 0 {
        return false;
    }
    mail.send_reserved(from, to, message);
    true
}

#[test]
fn messages_come_in_their_order(rt: HostRuntime) {
    let ask = message(Body::Request(LOCK, Mode::Pr));
    let end = message(Body::End);
    let mut mail = Mail::new(rt.alloc());
    assert!(rt; mail.is_empty(8, 8));
    assert!(rt; mail.send(1, 2, ask).is_ok());
    assert!(rt; mail.reserve(1, 2, 3).is_ok());
    assert!(rt; 3 <= mail.room(1, 2));
    assert!(rt; send_into_room(&mut mail, 1, 2, end));
    assert!(rt; mail.send(2, 1, end).is_ok());
    assert!(rt; !mail.is_empty(1, 2));
    assert_eq!(rt; mail.receive(1, 2), Some(ask));
    assert_eq!(rt; mail.receive(1, 2), Some(end));
    assert_eq!(rt; mail.receive(1, 2), None);
    assert_eq!(rt; mail.receive(2, 1), Some(end));
    assert_eq!(rt; mail.receive(8, 8), None);
    assert_eq!(rt; ask.word(), MailWord::Request);
    assert_eq!(rt; end.word(), MailWord::End);
}
