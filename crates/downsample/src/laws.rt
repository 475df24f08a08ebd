//! What downsampling depends on, for the layers above.
ghost use Rattle.downsample.specs.Laws.{DependsOnValuesAlone};

/// Series that have the same value at every time make the same points. So where a series has one value at each time,
/// neither the order of its readings matters nor how often one is repeated.
pub fn downsampling_depends_on_values()
    ensures { DependsOnValuesAlone }
{}
