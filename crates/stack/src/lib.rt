//! A stack of values over a vector.
#![tactic(auto)]

ghost use Rattle.std.specs.Prelude.{◌≡◌, [], ◌∷◌, ◌++◌, reverse, OnOk, OnErr, MatchOption, IfOk};

use std::alloc::{AllocError, Global};
use std::marker::Model;

/// A stack, which contracts see as a list with the top first.
#[derive(Drop)]
pub struct Stack<T> {
    items: Vec<T>,
}

impl<T> Model for Stack<T> {
    ghost use Rattle.std.specs.Prelude.{List, reverse};
    ghost use Rattle.std.specs.Coded.{coded_list};

    ghost Value = { List T };

    ghost coded = { coded_list T.code };

    ghost view = { λ s. reverse s.items.items };
}

impl<T> Stack<T> {
    /// An empty stack.
    pub fn new(alloc: Global) -> Stack<T>
        ensures { result ≡ [] }
    {
        Stack {
            items: Vec::new(alloc),
        }
    }

    /// Takes the top off, if there is one.
    pub fn pop(&mut self) -> Option<T>
        ensures { MatchOption result ((self.old ≡ []) × (self.new ≡ []))
            (λ top. self.old ≡ top ∷ self.new) }
    {
        self.items.pop()
    }
}

impl<T: Drop> Stack<T> {
    /// Puts a value on top.
    pub fn push(&mut self, top: T) -> Result<(), AllocError>
        ensures ok { OnOk result (self.new ≡ top ∷ self.old) }
        ensures err { OnErr result (self.new ≡ self.old) }
    {
        self.items.push(top)?;
        Ok(())
    }
}

impl<T: Copy> Stack<T> {
    /// Puts these items on top, the first of them uppermost.
    pub fn push_all(&mut self, items: &[T]) -> Result<(), AllocError>
        ensures { OnOk result (self.new ≡ items.now ++ self.old) }
    {
        let mut left = items.len();
        while left > 0 {
            left -= 1;
            self.items.push(items[left])?;
        }
        Ok(())
    }
}

#[cfg(test)]
mod tests {
    use super::*;
    use std::test::Fail;

    #[test]
    fn gives_back_the_last_first(rt: HostRuntime) -> Result<(), Fail> {
        let mut stack = Stack::new(rt.alloc());
        stack.push(1)?;
        stack.push_all(&[4, 3, 2])?;
        assert_eq!(rt; stack.pop(), Some(4));
        assert_eq!(rt; stack.pop(), Some(3));
        assert_eq!(rt; stack.pop(), Some(2));
        assert_eq!(rt; stack.pop(), Some(1));
        assert_eq!(rt; stack.pop(), None);
        Ok(())
    }
}
