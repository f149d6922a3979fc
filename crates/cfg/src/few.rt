// None, one or two values.

// None, one or two values, in their order. Two Options would be no plainer: they have a second without a first.
// Its users match the three forms: an iterator would owe std's laws here, and an invariant in the loop of each user.
#[derive(Clone, Copy, PartialEq, Eq, Debug)]
pub enum UpToTwo<T> {
    None,
    One(T),
    Two(T, T),
}
