//! Laws of watches, each carried by a function that does nothing.
ghost use Rattle.poets_live.specs.Watching.{LedToEvents, OneEventMore};

/// With what an event brought put in place, each watch has its answer over one event more.
pub fn one_event_more()
    ensures { OneEventMore }
{}

/// With what leads it to events put in place, each watch has its answer over these.
pub fn led_to_events()
    ensures { LedToEvents }
{}
