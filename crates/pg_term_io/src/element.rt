/// How a list goes on from some place in it.
#[derive(Clone, Copy)]
pub enum NextElement<'a> {
    /// It is over, and what follows it is these bytes.
    End(&'a [u8]),
    /// Its next element is at the start of these bytes. It may nest so many levels; after it come so many further
    /// elements, and then the tail.
    Item(u8, u32, &'a [u8]),
    /// The further elements are bytes of a text, each of them an integer; or there is no list.
    NoItem,
}
