// What makes the writer of a query's rows.
ghost use Rattle.std.specs.Prelude.{◌≡◌, true};
ghost use Rattle.any_format.specs.Wanted.{IsMoment};
ghost use Rattle.query_tree.specs.Views.{query_of};
ghost use Rattle.query_types.specs.Built.{is_built};
ghost use Rattle.row_output.specs.Sinks.{IsUnplaced};
ghost use Rattle.sampled_run.specs.Unplaced.{unplaced_once};

use crate::Moment;
use any_format::Wanted;
use lp_time::Pattern;
use query_tree::Query;
use row_output::Into;
use std::marker::PhantomData;

/// Makes the writer of a query's rows to a stage of a kind `G`, over the columns that the logs tell.
#[derive(Drop)]
pub struct RowMaker<'a, G> {
    /// How times are read.
    pub pattern: &'a Pattern,
    pub moment: Moment,
    pub query: &'a Query,
    pub wanted: Wanted,
    pub into: Into,
    pub stage: PhantomData<G>,
    ghost built: { is_built (query_of query.now) ≡ true },
    ghost in_range: { IsMoment moment.seconds },
    ghost unplaced: { IsUnplaced into } by { unplaced_once into },
}
