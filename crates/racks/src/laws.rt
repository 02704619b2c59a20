// The guarantee of every kept rack.
ghost use Rattle.racks.specs.Guarantee.{Guarantee};

pub fn guarantee()
    ensures { Guarantee }
{}
