//! What is asked of a replication.

/// A replication.
#[derive(Clone, Copy, Debug)]
pub struct Request<'w> {
    /// The path of the database.
    pub db: &'w str,
    /// The folder of the replica.
    pub replica: &'w str,
    /// How many rounds are done.
    pub rounds: u32,
    /// How long a transaction is retained, in ms.
    pub keep: u64,
    /// Whether nobody else has the database open.
    pub at_rest: bool,
}
