//! What is true of all distances from the nearest. The function does nothing.
ghost use Rattle.mi_choose.specs.Nearest.{NearestIsMember};

/// Where there are members, a vector's distance from the nearest is that from one of them, and none is nearer.
pub fn the_nearest_is_a_member()
    ensures { NearestIsMember }
{}
