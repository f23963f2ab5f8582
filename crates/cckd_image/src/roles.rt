/// Which identifier a file may begin with.
#[derive(Clone, Copy, Debug, PartialEq, Eq)]
pub enum Roles {
    /// That of a base.
    Base,
    /// That of a shadow.
    Shadow,
    /// That of a base or of a shadow.
    Either,
}
