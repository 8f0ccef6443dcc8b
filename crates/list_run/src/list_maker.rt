// What makes the collector of a subquery's values.
use lp_time::Pattern;
use query_tree::Query;
use sampled_run::Moment;
use std::marker::PhantomData;

/// Makes the collector of a subquery's values, gathered in a type `S`, over the columns that the logs tell.
#[derive(Drop)]
pub struct ListMaker<'a, S> {
    /// How times are read.
    pub pattern: &'a Pattern,
    pub moment: Moment,
    pub query: &'a Query,
    pub set: PhantomData<S>,
}
