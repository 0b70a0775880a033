//! The names that a script's answers give to objects.

use call_text::Answer;
use std::alloc::{AllocError, Global};
use std::collections::HashMap;

/// The names of the objects that were told: the first one that an answer tells is `o1`, the next one `o2`.
#[derive(Drop)]
pub(crate) struct Names {
    by_number: HashMap<u64, u64>,
}

impl Names {
    /// No object was told yet.
    pub(crate) fn new(alloc: Global) -> Names {
        Names {
            by_number: HashMap::new(alloc),
        }
    }

    /// The name of an object, by its number.
    fn name(&mut self, object: u64) -> Result<u64, AllocError> {
        if let Some(name) = self.by_number.get(&object) {
            return Ok(*name);
        }
        let name = (self.by_number.len() as u64).saturating_add(1);
        self.by_number.insert(object, name)?;
        Ok(name)
    }

    /// The answer, with the names of objects in the place of their numbers.
    pub(crate) fn tell(&mut self, answer: Answer) -> Result<Answer, AllocError> {
        match answer {
            Answer::Object(object) => Ok(Answer::Object(self.name(object)?)),
            Answer::Finished { mut called, stop } => {
                for it in &mut called {
                    it.object = self.name(it.object)?;
                }
                Ok(Answer::Finished { called, stop })
            }
            answer => Ok(answer),
        }
    }
}
