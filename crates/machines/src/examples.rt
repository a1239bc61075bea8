// The worked examples hold.
ghost use Rattle.machines.specs.Examples.{StoresWait, StoresArrive, PlainStops, LoadsAhead, LeavesOut};

pub fn examples_hold() -> u8
    ensures wait { StoresWait }
    ensures arrive { StoresArrive }
    ensures plain { PlainStops }
    ensures ahead { LoadsAhead }
    ensures order { LeavesOut }
{
    0
}
