// What makes the taker of a grouped query's rows.
ghost use Rattle.any_format.specs.Wanted.{IsMoment};
ghost use Rattle.row_output.specs.Sinks.{IsUnplaced};
ghost use Rattle.sampled_run.specs.Unplaced.{unplaced_once};

use any_format::Wanted;
use lp_time::Pattern;
use query_tree::Query;
use row_output::Into;
use sampled_run::Moment;
use std::marker::PhantomData;

/// Makes the taker of a grouped query's rows to a stage of a kind `G`, over the columns that the logs tell.
#[derive(Drop)]
pub struct GroupMaker<'a, G> {
    /// How times are read.
    pub pattern: &'a Pattern,
    pub moment: Moment,
    pub query: &'a Query,
    pub wanted: Wanted,
    pub into: Into,
    pub stage: PhantomData<G>,
    ghost in_range: { IsMoment moment.seconds },
    ghost unplaced: { IsUnplaced into } by { unplaced_once into },
}
