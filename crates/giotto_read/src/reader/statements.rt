//! Statements and blocks.

ghost use Rattle.giotto_read.specs.inner.Doing.{Does};
ghost use Rattle.giotto_tasks.specs.Trees.{block_of, statement_of};
ghost use Rattle.giotto_text.specs.Parsing.{read_assignment, read_block, read_branch_of, read_else_of, read_repetition_of, read_statement_of};
ghost use Rattle.giotto_text.specs.cited.ProgramTrees.{assignment_of};

use super::{Reader, Stop};
use giotto_tasks::bodies::{Expr, Stmt};
use giotto_tasks::names::Name;
use giotto_text::tokens::{Keyword, Symbol};

impl Reader<'_> {
    // block = "{" {stmt} "}"
    #[cycle(nest_blocks)]
    pub(super) fn block(&mut self) -> Result<Vec<Stmt>, Stop>
        ensures { Does (λ b. block_of b.items) read_block self.old result self.new }
    {
        self.symbol(Symbol::OpenBrace)?;
        let mut block = Vec::new(self.alloc);
        while !self.accept(Symbol::CloseBrace) {
            let statement = self.statement()?;
            block.push(statement)?;
        }
        Ok(block)
    }

    // stmt = NAME ":=" expr ";" | "if" expr block ["else" block] | "repeat" INT block
    #[cycle(nest_blocks)]
    fn statement(&mut self) -> Result<Stmt, Stop>
        ensures { Does statement_of (read_statement_of read_block) self.old result self.new }
    {
        if self.next_is_keyword(Keyword::If) {
            return self.conditional();
        }
        if self.next_is_keyword(Keyword::Repeat) {
            return self.repetition();
        }
        let (name, value) = self.assignment()?;
        Ok(Stmt::Assign(name, value))
    }

    // "if" expr block ["else" block]
    #[cycle(nest_blocks)]
    fn conditional(&mut self) -> Result<Stmt, Stop>
        ensures { Does statement_of (read_branch_of read_block) self.old result self.new }
    {
        self.keyword(Keyword::If)?;
        let condition = self.expression()?;
        let block = self.block()?;
        let otherwise = self.otherwise()?;
        Ok(Stmt::If(condition, block, otherwise))
    }

    // ["else" block]
    #[cycle(nest_blocks)]
    fn otherwise(&mut self) -> Result<Vec<Stmt>, Stop>
        ensures { Does (λ b. block_of b.items) (read_else_of read_block) self.old result self.new }
    {
        if !self.accept_keyword(Keyword::Else) {
            return Ok(Vec::new(self.alloc));
        }
        let block = self.block()?;
        Ok(block)
    }

    // "repeat" INT block
    #[cycle(nest_blocks)]
    fn repetition(&mut self) -> Result<Stmt, Stop>
        ensures { Does statement_of (read_repetition_of read_block) self.old result self.new }
    {
        self.keyword(Keyword::Repeat)?;
        let turns = self.int()?;
        let block = self.block()?;
        Ok(Stmt::Repeat(turns, block))
    }

    // NAME ":=" expr ";"
    pub(super) fn assignment(&mut self) -> Result<(Name, Expr), Stop>
        ensures { Does assignment_of read_assignment self.old result self.new }
    {
        let name = self.name()?;
        self.symbol(Symbol::Becomes)?;
        let value = self.expression()?;
        self.symbol(Symbol::Semicolon)?;
        Ok((name, value))
    }
}
