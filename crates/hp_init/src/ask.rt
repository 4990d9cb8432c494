use hp_base::Span;

/// What makes a class Second: something that always is, or a name of Second class, by its number.
#[derive(Clone, Copy, Debug)]
pub enum Source {
    Always,
    Class(usize),
}

/// What a node asks of the classes of its names.
#[derive(Clone, Copy, Debug)]
pub enum Ask {
    /// The name of the number is Second where the source is.
    Follows(Source, usize),
    /// The unit at the place wants the source to be First.
    First(Source, Span),
}
