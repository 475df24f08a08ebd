//! What an answer depends on, for the layers above.
ghost use Rattle.query_run.specs.Laws.{AnswerIsUnordered};
ghost use Rattle.query_run.specs.Invisible.{SameAcceptedSameAnswer, CompactionChangesNoAnswer, OneValueIsAnswered, AloneGives};

use downsample::laws::downsampling_depends_on_values;
use lerp_aggregate::laws::aggregation_depends_on_values;

/// Points of one metric with the same readings have the same answer, where no series has two values at one time: neither
/// the order of the points matters, nor their form, nor how often one is repeated.
pub fn answer_is_unordered()
    ensures { AnswerIsUnordered }
{
    aggregation_depends_on_values();
    downsampling_depends_on_values();
}

/// What was accepted and which names are resolved decide the answer of a query, where no series was given two values at one time
/// and nothing is put until the answer. So no compaction changes an answer, whoever makes it and however far it came. A query is
/// refused for two values only where a series was given two. What `ask` answers a caller that steps alone is such an answer.
pub fn compaction_changes_no_answer()
    ensures same { SameAcceptedSameAnswer }
    ensures compaction { CompactionChangesNoAnswer }
    ensures one_value { OneValueIsAnswered }
    ensures alone { AloneGives }
{
    answer_is_unordered();
}
