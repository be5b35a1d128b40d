// The promises over every writer and every list of calls, and two runs that they speak of. Relies on specs/Promises and specs/Examples.
ghost use Rattle.promises.specs.Examples.{Lawful, WaitingRun, FirstPollCounts};
ghost use Rattle.promises.specs.Promises.{Promises};

use writer::Writer;

// Conservation, done means flushed and bounded waiting, for every history of a stream over W.
pub fn promises_hold<W: Writer>()
    ensures { Promises W.taken W.covered W.writes W.flushes }
{}

// All that bounded waiting asks can be met: a lawful writer, patient handles, and a write that waits through a full round.
pub fn a_waiting_run_exists()
    ensures lawful { Lawful }
    ensures waiting { WaitingRun }
{}

// A flush that is done has covered what was accepted before its first poll; what was accepted later need not be covered.
pub fn a_flush_counts_from_its_first_poll()
    ensures { FirstPollCounts }
{}
