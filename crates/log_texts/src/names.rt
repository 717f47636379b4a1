ghost use Rattle.std.specs.Prelude.{◌≡◌, [], ◌∷◌, ◌++◌, map, position, string_bytes, length, IfOk, OnOk, OnErr};
ghost use Rattle.std.specs.Str.{bytes_eq};
ghost use Rattle.log_texts.specs.ScriptTexts.{server_number};
ghost use Rattle.log_texts.specs.Lines.{has_name};
ghost use Rattle.log_texts.specs.Traces.{name_of};

use crate::name::Name;
use std::alloc::{AllocError, Global};
use std::marker::Model;

/// The names of the servers, in file order.
#[derive(Debug, Drop)]
pub struct Names {
    list: Vec<String>,
}

impl Model for Names {
    ghost use Rattle.std.specs.Prelude.{ℕ, List, map, string_bytes};

    ghost Value = { List (List ℕ) };

    ghost view = { λ names. map string_bytes names.list.items };
}

impl Names {
    pub fn new(list: Vec<String>) -> Names
        ensures { result ≡ map string_bytes list.items }
    {
        Names { list }
    }

    /// Returns the name of the server with this number; an empty text where there is none.
    pub fn of(&self, server: usize) -> &str
        ensures { result.now ≡ name_of self.now server }
    {
        match self.list.get(server) {
            Some(name) => name.as_str(),
            None => "",
        }
    }

    /// Returns the number of servers.
    pub fn len(&self) -> usize
        ensures { result ≡ length self.now }
    {
        self.list.len()
    }

    /// Returns the number of the first server with this name. One pass over the names.
    pub fn find(&self, name: &Name) -> Option<usize>
        ensures { result ≡ position (bytes_eq name.now) self.now }
    {
        name_index(&self.list, name.as_str())
    }

    /// Returns the number that a name means in a pin or in a check: its server's, and where no
    /// server has it the number of servers, which a dispatcher refuses. One pass over the names.
    pub fn number(&self, name: &Name) -> usize
        ensures { result ≡ server_number self.now name.now }
    {
        self.find(name).unwrap_or(self.len())
    }

    // Says whether a server has this name.
    pub(crate) fn has(&self, name: &Name) -> bool
        ensures { result ≡ has_name self.now name.now }
    {
        self.find(name).is_some()
    }

    // Appends a name.
    pub(crate) fn push(&mut self, alloc: Global, name: &Name) -> Result<(), AllocError>
        ensures ok { OnOk result (self.new ≡ self.old ++ name.now ∷ []) }
        ensures err { OnErr result (self.new ≡ self.old) }
    {
        self.list.push(String::from_str(alloc, name.as_str())?)?;
        Ok(())
    }
}

fn name_index(names: &[String], text: &str) -> Option<usize>
    ensures { result ≡ position (λ name. bytes_eq text.now (string_bytes name)) names.now }
{
    names.iter().position(|name| text == name.as_str())
}
