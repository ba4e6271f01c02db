/// There was no memory for something, and the value that it was to be made of is handed back.
#[derive(Drop)]
pub struct NoMemoryFor<T> {
    pub value: T,
}
