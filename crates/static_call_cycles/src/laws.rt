// Laws of the definitions: a call does nothing, and its contract is the law.

ghost use Rattle.static_call_cycles.specs.Laws.{NothingRefusedWhereAcyclic};

/// Of calls that are made at once nothing is refused exactly where no process so calls itself, directly or through others.
pub fn nothing_is_refused_where_acyclic()
    ensures { NothingRefusedWhereAcyclic }
{}
