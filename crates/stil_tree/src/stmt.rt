//! A statement, and the statements of a block.

ghost use Rattle.std.specs.Prelude.{◌≡◌, map};

/// A statement: a head of tokens, and its block where it has one.
#[cycle(stmt)]
#[derive(Debug, Drop)]
pub struct Stmt {
    /// The index of its first token: of its head's, or of its `{` where the head is empty.
    pub first: u32,
    /// How many tokens its head has.
    pub count: u32,
    /// The statements of its block. One that ends with `;` has none.
    pub body: Option<StmtList>,
}

/// Statements in the order of their text.
#[cycle(stmt)]
#[derive(Debug, Drop)]
pub struct StmtList {
    stmts: Vec<Stmt>,
}

impl StmtList {
    ghost use Rattle.std.specs.Prelude.{◌≡◌, ◌==◌, map, length};
    ghost use Rattle.stil_tree.specs.Trees.{trees, trees_from, entries, entry_of};

    /// The list of these statements.
    pub fn from_vec(stmts: Vec<Stmt>) -> StmtList
        ensures { trees result ≡ trees_from (map entry_of stmts.items) }
    {
        StmtList { stmts }
    }

    /// The statements as a vector, which takes no memory.
    pub fn into_vec(self) -> Vec<Stmt>
        ensures { map entry_of result.items ≡ entries (trees self) }
    {
        let StmtList { stmts } = self;
        stmts
    }

    pub fn as_slice(&self) -> &[Stmt]
        ensures { map entry_of result.now ≡ entries (trees self.now) }
    {
        self.stmts.as_slice()
    }

    pub fn len(&self) -> usize
        ensures { result ≡ length (entries (trees self.now)) }
    {
        self.as_slice().len()
    }

    pub fn is_empty(&self) -> bool
        ensures { result ≡ (length (entries (trees self.now)) == 0) }
    {
        self.as_slice().is_empty()
    }
}
