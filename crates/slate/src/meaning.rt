// What slates stand for.
ghost use Rattle.slate.specs.Slates.{SlatesStandForSomething};

use leaf::kind::Leaf;

// Whatever was done with a slate, it stands for some equations over its cells in use, which have a reading.
pub fn slates_stand_for_something<L: Leaf>()
    ensures { SlatesStandForSomething L }
{}
