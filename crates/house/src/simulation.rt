// The simulation on which the main theorem stands, as theorems of their own.
ghost use Rattle.house.specs.Simulation.{StepsKept, DrainsKept, RunsKept, CallsKept};

// Any steps of devices and the IOMMU are explained, and hardware and meaning still agree.
pub fn steps_are_explained() -> u8
    ensures { StepsKept }
{
    0
}

// A drain too, whatever it answers.
pub fn drains_are_explained() -> u8
    ensures { DrainsKept }
{
    0
}

// What programs do between calls, and the call that comes then.
pub fn programs_are_explained() -> u8
    ensures { (RunsKept) × (CallsKept) }
{
    0
}
