/// What joining the records of a store came to.
#[derive(Clone, Copy, Debug, PartialEq, Eq)]
pub enum Coalesced {
    /// The store has no chain.
    NoChain,
    /// Its chain has one record, and so there is nothing to join.
    OneRecord,
    /// Its records are joined into one.
    Joined {
        /// How many there were.
        records: u16,
    },
}
