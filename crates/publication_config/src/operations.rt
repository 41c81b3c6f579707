//! What a publication publishes of what is done to its tables.

ghost use Rattle.std.specs.Prelude.{◌≡◌};
ghost use Rattle.publication_config.specs.Published.{publishes, with_operation};

/// What a session does to rows or tables.
#[derive(Clone, Copy, PartialEq, Eq)]
pub enum Operation {
    Insert,
    Update,
    Delete,
    Truncate,
}

/// The operations that a publication publishes (PostgreSQL 15, CREATE PUBLICATION, `publish`).
#[derive(Clone, Copy, PartialEq, Eq)]
pub struct Operations {
    pub insert: bool,
    pub update: bool,
    pub delete: bool,
    pub truncate: bool,
}

impl Operations {
    pub const ALL: Operations = Operations {
        insert: true,
        update: true,
        delete: true,
        truncate: true,
    };

    pub const NONE: Operations = Operations {
        insert: false,
        update: false,
        delete: false,
        truncate: false,
    };

    /// With this operation too.
    pub fn with(self, operation: Operation) -> Operations
        ensures { result ≡ with_operation self operation }
    {
        let mut operations = self;
        match operation {
            Operation::Insert => operations.insert = true,
            Operation::Update => operations.update = true,
            Operation::Delete => operations.delete = true,
            Operation::Truncate => operations.truncate = true,
        }
        operations
    }

    pub fn has(self, operation: Operation) -> bool
        ensures { result ≡ publishes self operation }
    {
        match operation {
            Operation::Insert => self.insert,
            Operation::Update => self.update,
            Operation::Delete => self.delete,
            Operation::Truncate => self.truncate,
        }
    }
}
