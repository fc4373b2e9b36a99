ghost use Rattle.std.specs.Prelude.{◌≡◌, ◌≤◌, length};
ghost use Rattle.run_rules.specs.Follows.{place_of as place_in};

use script_lang::Client;

/// The place of a client in the script, by its name; the number of clients where none has it.
pub(crate) fn place_of(clients: &[Client], name: &[u8]) -> usize
    ensures { result ≡ place_in clients.now name.now }
{
    let mut place = 0;
    for client in clients {
        if client.name.bytes() == name {
            return place;
        }
        place += 1;
    }
    place
}
