//! Paths, lists of 1 to 63 steps from the root down to a page.
ghost use Rattle.std.specs.Prelude.{◌≡◌, ℕ, ◌-◌, ◌<◌, ◌≤◌, ◌↔◌, [], ◌∷◌, ◌++◌, length, take, IsTrue, IfSome, slice_get};
ghost use Rattle.std.specs.Option.{SomeIff};
ghost use Rattle.step_path.specs.Path.{IsPath, IsPathText, BeginsWith, path_text, steps_of, relabelled};

use crate::Step;
use crate::step::STEP_TEXT;
use arrayvec::ArrayVec;
use std::marker::Model;

/// The greatest number of steps of a path, 63.
pub const MAX_DEPTH: usize = 63;

/// The greatest number of characters of a path's text, 252: four for each step.
pub const MAX_TEXT: usize = STEP_TEXT * MAX_DEPTH;

/// The steps from the root down to a page, 1 to 63 of them.
///
/// Paths compare step by step, and a path comes before the longer ones that begin with it.
#[derive(Debug, Drop, PartialEq, Eq, PartialOrd, Ord, Hash)]
pub struct Path {
    steps: ArrayVec<u32, MAX_DEPTH>,
}

impl Model for Path {
    ghost use Rattle.std.specs.Prelude.{List, ℕ};
    ghost use Rattle.step_path.specs.Path.{IsPath};

    ghost Value = { List ℕ };

    ghost view = { λ path. path.steps.items };

    ghost invariant = { λ path. IsPath path.steps.items };

    ghost inverse = { λ path. record { steps = record { items = path } } };
}

impl Path {
    /// The path of the root, whose text is `0001`.
    pub fn root() -> Path
        ensures { result ≡ 1 ∷ [] }
    {
        let mut steps = ArrayVec::new();
        steps.push(1);
        Path { steps }
    }

    /// The number of steps, from 1 to 63, which is 1 at the root.
    pub fn depth(&self) -> u8
        ensures value { result ≡ length self.now }
        ensures path { IsPath self.now }
    {
        self.steps.len() as u8
    }

    /// The step at a place, counted from 0 at the root, or `None` at or past the depth.
    pub fn step_at(&self, place: usize) -> Option<Step>
        ensures { result ≡ slice_get self.now place }
    {
        if place < self.steps.len() {
            Some(Step::checked(self.steps[place]))
        } else {
            None
        }
    }

    /// The last step, the page's place among its siblings.
    pub fn last(&self) -> Step
        ensures { self.now ≡ take (length self.now - 1) self.now ++ result ∷ [] }
    {
        Step::checked(self.steps[self.steps.len() - 1])
    }

    /// The same path once more. It takes no memory.
    pub fn copy(&self) -> Path
        ensures { result ≡ self.now }
    {
        Path {
            steps: copied(&self.steps),
        }
    }

    /// The path with one more step, or `None` exactly at 63 steps.
    pub fn child(&self, step: Step) -> Option<Path>
        ensures { SomeIff result (length self.now < MAX_DEPTH) (self.now ++ step ∷ []) }
    {
        if self.steps.len() == MAX_DEPTH {
            return None;
        }
        let mut steps = copied(&self.steps);
        steps.push(step.get());
        Some(Path { steps })
    }

    /// The path without its last step, or `None` exactly at one step.
    pub fn parent(&self) -> Option<Path>
        ensures shorter { SomeIff result (1 < length self.now)
            (take (length self.now - 1) self.now) }
        ensures child { IfSome result (λ path. (last : ℕ) × (self.now ≡ path ++ last ∷ [])) }
    {
        let depth = self.steps.len();
        if depth == 1 {
            return None;
        }
        Some(Path {
            steps: copied(&self.steps[..depth - 1]),
        })
    }

    /// Whether `other` is this path or lies below it: its steps begin with the steps of this one.
    pub fn begins(&self, other: &Path) -> bool
        ensures { IsTrue result ↔ BeginsWith self.now other.now }
    {
        other.steps.starts_with(&self.steps)
    }

    /// The path with the steps of `new` in place of those of `old`, which it begins with, or `None`
    /// exactly where that has more than 63 steps.
    pub fn with_prefix(&self, old: &Path, new: &Path) -> Option<Path>
        requires { BeginsWith old.now self.now }
        ensures { let moved = relabelled old.now new.now self.now in
            SomeIff result (length moved ≤ MAX_DEPTH) moved }
    {
        let rest = &self.steps[old.steps.len()..];
        let mut steps = copied(&new.steps);
        match steps.try_extend_from_slice(rest) {
            Ok(()) => Some(Path { steps }),
            Err(_) => None,
        }
    }

    /// The text, the four characters of each step from the root on. It takes no memory.
    pub fn text(&self) -> ArrayVec<u8, MAX_TEXT>
        ensures value { result.items ≡ path_text self.now }
        ensures path { IsPathText result.items }
    {
        let mut text = ArrayVec::new();
        let numbers = self.steps.as_slice();
        for number in numbers {
            let step = Step::checked(*number);
            let _ = text.try_extend_from_slice(&step.text());
        }
        text
    }

    /// The path with this text, or `None` exactly where the text is no path's.
    pub fn read(text: &[u8]) -> Option<Path>
        ensures path { SomeIff result (IsPathText text.now) (steps_of text.now) }
        ensures text { IfSome result (λ path. path_text path ≡ text.now) }
    {
        if text.is_empty() || text.len() > MAX_TEXT || text.len() % STEP_TEXT != 0 {
            return None;
        }
        let mut steps = ArrayVec::new();
        for place in 0..text.len() / STEP_TEXT {
            let start = STEP_TEXT * place;
            let Some(step) = Step::read(&text[start..start + STEP_TEXT]) else {
                return None;
            };
            steps.push(step.get());
        }
        Some(Path { steps })
    }
}

/// A vector of these steps, of which there are at most 63.
fn copied(numbers: &[u32]) -> ArrayVec<u32, MAX_DEPTH>
    requires { length numbers.now ≤ MAX_DEPTH }
    ensures { result.items ≡ numbers.now }
{
    let mut steps = ArrayVec::new();
    let _ = steps.try_extend_from_slice(numbers);
    steps
}
