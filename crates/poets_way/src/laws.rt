//! The laws of ways, each carried by a function that does nothing.
ghost use Rattle.poets_way.specs.Laws.{WaysPerform, SomeWay};

/// Where there is a way in which a trace performs a contract, the trace performs the contract.
pub fn ways_perform()
    ensures { WaysPerform }
{}

/// Where a trace performs a contract, there is a way in which it does.
pub fn some_way()
    ensures { SomeWay }
{}
