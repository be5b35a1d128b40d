// Worked runs of the streams, as one list under one proof over the definitions that the contracts cite.
#![tactic(auto)]

ghost use Rattle.worked.specs.Worked.{Worked};

pub fn worked_runs()
    ensures { Worked }
{}
