ghost use Rattle.std.specs.Prelude.{◌≡◌, ◌≤◌, ◌^◌, [], IfOk, OnOk, IfErr, IfSome, IfNone, IsTrue, ◌↔◌, MatchOption, Some, None, slice_get};
ghost use Rattle.loop_table.specs.TokenTables.{IsNow, HasValue, IsVacantToken, IsOut, IsGone, fresh, given, table_with_open, lent, filled, closed};
ghost use Rattle.loop_table.specs.declared.token.Token.{Token};

use crate::cells;
use crate::token::{GENERATIONS, Hole, MOST_CELLS, Token};
use queue_waits::JoinOrder;
use std::alloc::{AllocError, Global};
use std::marker::Model;

/// A table of values by token, without `Drop`: each value is put in, lent out, and given back or
/// closed. A cell that was closed is used again, the one that has been free for the longest first,
/// and gets another token then.
pub struct TokenTable<T> {
    values: Vec<Option<T>>,
    // The number of times that each cell was closed.
    generations: Vec<u64>,
    free: JoinOrder,
}

impl<T> Model for TokenTable<T> {
    ghost use Rattle.loop_table.specs.TokenTables.{Table, IsTokenTable};

    ghost Value = { Table T };

    ghost view = { λ it. record { values = it.values.items; generations = it.generations.items; free = it.free.places } };

    ghost invariant = { λ it. IsTokenTable it.values.items it.generations.items it.free };
}

impl<T> TokenTable<T> {
    /// Makes a table with this number of free cells. Fails only where memory is refused. `O(n)`.
    pub fn with_room(alloc: Global, room: usize) -> Result<TokenTable<T>, AllocError>
        requires { room ≤ 2 ^ 20 }
        ensures { IfOk result (λ made. made ≡ fresh room) }
    {
        let mut free = JoinOrder::with_room(alloc, room)?;
        let mut generations = Vec::with_capacity(alloc, room)?;
        for index in 0..room {
            free.append(index);
            generations.push_reserved(0);
        }
        Ok(TokenTable {
            values: cells::empty(alloc, room)?,
            generations,
            free,
        })
    }

    /// Puts a value into a free cell, and returns its token, which is new. The value comes back
    /// only where no cell is free. `O(1)`.
    pub fn put(&mut self, value: T) -> Result<Token, T>
        ensures token { IfOk result (λ token. IsVacantToken self.old token) }
        ensures empty { IfOk result (λ token. slice_get self.old.values token.index ≡ Some None) }
        ensures first { IfOk result (λ token. slice_get self.old.free 0 ≡ Some token.index) }
        ensures ok { IfOk result (λ token. self.new ≡ given self.old token value) }
        ensures err { IfErr result (λ back. (back ≡ value) × (self.old.free ≡ []) × (self.new ≡ self.old)) }
        ensures gone { (other : Token) → IsGone self.old other → IsGone self.new other }
    {
        let Some(index) = self.free.first() else {
            return Err(value);
        };
        let generation = self.generations[index];
        self.free.remove(index);
        cells::fill(&mut self.values, index, value);
        Ok(Token { index, generation })
    }

    /// Returns an empty cell with a new token; `None` only where no cell is free. `O(1)`.
    pub fn open(&mut self) -> Option<Hole>
        ensures token { IfSome result (λ hole. IsVacantToken self.old hole.token) }
        ensures out { IfSome result (λ hole. IsOut self.new hole.token) }
        ensures first { IfSome result (λ hole. slice_get self.old.free 0 ≡ Some hole.token.index) }
        ensures some { IfSome result (λ hole. self.new ≡ table_with_open self.old hole.token) }
        ensures none { IfNone result ((self.old.free ≡ []) × (self.new ≡ self.old)) }
        ensures gone { (other : Token) → IsGone self.old other → IsGone self.new other }
    {
        let Some(cell) = self.free.first() else {
            return None;
        };
        let generation = self.generations[cell];
        self.free.remove(cell);
        Some(Hole {
            token: Token {
                index: cell,
                generation,
            },
        })
    }

    /// Says whether no cell is free.
    pub fn is_full(&self) -> bool
        ensures { IsTrue result ↔ (self.now.free ≡ []) }
    {
        self.free.first().is_none()
    }

    /// Lends out the value of a token; `None` exactly where it has none. `O(1)`.
    pub fn lend(&mut self, token: Token) -> Option<(T, Hole)>
        ensures held { MatchOption result ((value : T) → ¬ (HasValue self.old token value)) (λ it. HasValue self.old token it.0) }
        ensures hole { IfSome result (λ it. it.1.token ≡ token) }
        ensures left { MatchOption result (self.new ≡ self.old) (λ _. (self.new ≡ lent self.old token) × IsOut self.new token) }
        ensures gone { (other : Token) → IsGone self.old other → IsGone self.new other }
    {
        if !self.is_now(token) {
            return None;
        }
        match cells::take(&mut self.values, token.index) {
            None => None,
            Some(value) => Some((value, Hole { token })),
        }
    }

    /// Returns the value of a token; `None` exactly where it has none. `O(1)`.
    pub fn get(&self, token: Token) -> Option<&T>
        ensures { MatchOption result ((value : T) → ¬ (HasValue self.now token value)) (λ value. HasValue self.now token value.now) }
    {
        if !self.is_now(token) {
            return None;
        }
        self.values[token.index].as_ref()
    }

    /// Gives the value of a token back, which keeps its token. The value comes back only where the
    /// hole isn't this table's. `O(1)`.
    pub fn fill(&mut self, hole: Hole, value: T) -> Result<(), T>
        ensures ok { OnOk result (IsOut self.old hole.token × (self.new ≡ filled self.old hole.token value)) }
        ensures err { IfErr result (λ back. (back ≡ value) × ¬ (IsOut self.old hole.token) × (self.new ≡ self.old)) }
        ensures gone { (other : Token) → IsGone self.old other → IsGone self.new other }
    {
        let Hole { token } = hole;
        if !self.is_out(token) {
            return Err(value);
        }
        cells::fill(&mut self.values, token.index, value);
        Ok(())
    }

    /// Closes the hole of a token: the token never names anything again. `O(1)`.
    pub fn close(&mut self, hole: Hole)
        ensures closed { IsOut self.old hole.token → (self.new ≡ closed self.old hole.token) × IsGone self.new hole.token }
        ensures other { ¬ (IsOut self.old hole.token) → self.new ≡ self.old }
        ensures gone { (other : Token) → IsGone self.old other → IsGone self.new other }
    {
        let Hole { token } = hole;
        if self.is_out(token) {
            let times = token.generation + 1;
            self.generations[token.index] = times;
            if times < GENERATIONS {
                self.free.append(token.index);
            }
        }
    }

    /// Returns the token of the value in a cell, where there is one. `O(1)`.
    pub fn token_of(&self, index: usize) -> Option<Token>
        ensures held { IfSome result (λ token. (value : T) × HasValue self.now token value) }
        ensures index { IfSome result (λ token. token.index ≡ index) }
        ensures none { IfNone result ((token : Token) (value : T) → token.index ≡ index → ¬ (HasValue self.now token value)) }
    {
        let generation = *self.generations.as_slice().get(index)?;
        if GENERATIONS <= generation || MOST_CELLS <= index {
            return None;
        }
        let token = Token { index, generation };
        if self.is_held(token) {
            Some(token)
        } else {
            None
        }
    }

    /// Returns the contents of all cells, in order.
    pub fn into_values(self) -> Vec<Option<T>>
        ensures { result.items ≡ self.values }
    {
        let TokenTable {
            values,
            generations: _,
            free: _,
        } = self;
        values
    }

    /// Says whether a token has a value. `O(1)`.
    pub fn is_held(&self, token: Token) -> bool
        ensures yes { IsTrue result → (value : T) × HasValue self.now token value }
        ensures others { (value : T) → HasValue self.now token value → IsTrue result }
    {
        self.is_now(token) && self.values[token.index].is_some()
    }

    // Says whether the cell of a token hasn't been closed since the token was given.
    fn is_now(&self, token: Token) -> bool
        ensures now { IsTrue result ↔ IsNow self.now token }
    {
        self.generations.as_slice().get(token.index).copied() == Some(token.generation)
    }

    // Says whether the value of a token is lent out.
    fn is_out(&self, token: Token) -> bool
        ensures { IsTrue result ↔ IsOut self.now token }
    {
        if !self.is_now(token) {
            return false;
        }
        if self.free.contains(token.index) {
            return false;
        }
        self.values[token.index].is_none()
    }
}
