//! What the definitions of deeds mean. The function does nothing: its contract is the law.
ghost use Rattle.disk_items.specs.Laws.{ItemsGoOn};

/// A law: items that tell operations, and items behind them that tell others, tell all of these.
pub fn items_go_on()
    ensures { ItemsGoOn }
{}
