/// What a list's log has: a cell for the writer's next turn, the writer, an item of the list, its end. No value of it is made.
pub enum Note<T> {
    Fresh(u64),
    Begins(u64),
    Adds(T, u64),
    Ends,
}
