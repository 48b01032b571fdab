// What a reader of texts may find wrong where it stands.
#[derive(Clone, Copy, PartialEq, Eq, Debug)]
pub enum Fault {
    // The character in front fits nowhere.
    Unfit,
    // Nested too deep.
    Deep,
    // The name that ends here, so many letters long, isn't quantified, or is quantified twice.
    Wrong(usize),
}
