//! What an aggregation depends on, for the layers above.
ghost use Rattle.lerp_aggregate.specs.Laws.{DependsOnValuesAlone, IsUnordered};

/// Groups whose series have, place by place, the same value at every time make the same points. So where a series has
/// one value at each time, neither the order of its readings matters nor how often one is repeated.
pub fn aggregation_depends_on_values()
    ensures { DependsOnValuesAlone }
{}

/// The order of the series of a group does not matter.
pub fn aggregation_is_unordered()
    ensures { IsUnordered }
{}
