// Whether home can force Clear, for the access that ends a list: neither yes nor no where it ends in none.
#[derive(Clone, Copy)]
pub enum Settled {
    Neither,
    No,
    Yes,
}
