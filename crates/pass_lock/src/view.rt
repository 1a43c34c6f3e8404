use std::collections::LinkedList;

/// What a pass knows. No value of it is made.
pub struct View<E, T> {
    pub seen: LinkedList<E>,
    pub numbers: LinkedList<u64>,
    /// What another pass had seen, and the numbers that it held, until they are taken in.
    pub told: LinkedList<E>,
    pub told_numbers: LinkedList<u64>,
    /// How many numbers there are, of a pass that holds number 0.
    pub made: u64,
    pub holds: bool,
    /// The lock's, of a pass that holds a number.
    pub terms: Option<T>,
}
