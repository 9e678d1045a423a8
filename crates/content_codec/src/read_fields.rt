//! Fields read from bytes: truth values, ids, moments, slugs and texts.

ghost use Rattle.std.specs.Prelude.{◌≡◌};
ghost use Rattle.std.specs.String.{string_bytes};
ghost use Rattle.content_codec.specs.Reading.{Reads, ReadsAs, each_at, number_at};
ghost use Rattle.content_codec.specs.Fields.{truth_at, page_at, user_at, group_at, optional_workflow_at, moment_at, optional_moment_at, slug_at, short_text_at, text_at, numbers_at};

use crate::{ReadFault, Reader};
use site_types::{GroupId, Ids, Moment, PageId, Slug, Text, UserId, WorkflowId};
use std::alloc::Global;

impl<'a> Reader<'a> {
    /// The next truth value: a byte that is 0 or 1.
    #[tactic(auto, unfolding(crate::specs::Fields::truth_at))]
    pub fn truth(&mut self) -> Result<bool, ReadFault>
        ensures { Reads result (truth_at self.old) self.new }
    {
        match self.byte()? {
            0 => Ok(false),
            1 => Ok(true),
            _ => Err(ReadFault::NoForm),
        }
    }

    /// The next id of a page, from 1 to 1,000,000.
    #[tactic(auto, unfolding(crate::specs::Fields::page_at))]
    pub fn page(&mut self) -> Result<PageId, ReadFault>
        ensures { Reads result (page_at self.old) self.new }
    {
        match PageId::new(self.u32()?) {
            Some(page) => Ok(page),
            None => Err(ReadFault::NoForm),
        }
    }

    /// The next id of a user, from 0 to 65,535.
    #[tactic(auto, unfolding(crate::specs::Fields::user_at))]
    pub fn user(&mut self) -> Result<UserId, ReadFault>
        ensures { Reads result (user_at self.old) self.new }
    {
        match UserId::new(self.u32()?) {
            Some(user) => Ok(user),
            None => Err(ReadFault::NoForm),
        }
    }

    /// The next id of a group, from 1 to 65,535.
    #[tactic(auto, unfolding(crate::specs::Fields::group_at))]
    pub fn group(&mut self) -> Result<GroupId, ReadFault>
        ensures { Reads result (group_at self.old) self.new }
    {
        match GroupId::new(self.u32()?) {
            Some(group) => Ok(group),
            None => Err(ReadFault::NoForm),
        }
    }

    /// The next id of a workflow, from 1 to 65,535, or 0, which is none.
    #[tactic(auto, unfolding(crate::specs::Fields::optional_workflow_at))]
    pub fn optional_workflow(&mut self) -> Result<Option<WorkflowId>, ReadFault>
        ensures { Reads result (optional_workflow_at self.old) self.new }
    {
        let number = self.u32()?;
        if number == 0 {
            return Ok(None);
        }
        match WorkflowId::new(number) {
            Some(workflow) => Ok(Some(workflow)),
            None => Err(ReadFault::NoForm),
        }
    }

    /// The next moment, of at most 253,370,764,799 seconds.
    #[tactic(auto, unfolding(crate::specs::Fields::moment_at))]
    pub fn moment(&mut self) -> Result<Moment, ReadFault>
        ensures { Reads result (moment_at self.old) self.new }
    {
        match Moment::new(self.u64()?) {
            Some(moment) => Ok(moment),
            None => Err(ReadFault::NoForm),
        }
    }

    /// The next moment, or none, which is the greatest number of eight bytes.
    #[tactic(auto, unfolding(crate::specs::Fields::optional_moment_at))]
    pub fn optional_moment(&mut self) -> Result<Option<Moment>, ReadFault>
        ensures { Reads result (optional_moment_at self.old) self.new }
    {
        let number = self.u64()?;
        if number == u64::MAX {
            return Ok(None);
        }
        match Moment::new(number) {
            Some(moment) => Ok(Some(moment)),
            None => Err(ReadFault::NoForm),
        }
    }

    /// The next slug, of 1 to 255 bytes.
    #[tactic(auto, unfolding(crate::specs::Fields::slug_at))]
    pub fn slug(&mut self) -> Result<Slug, ReadFault>
        ensures { Reads result (slug_at self.old) self.new }
    {
        let length = self.byte()?;
        match Slug::read(self.bytes(length as usize)?) {
            Some(slug) => Ok(slug),
            None => Err(ReadFault::NoForm),
        }
    }

    /// The next text of at most 255 bytes, such as a title.
    #[tactic(auto, unfolding(crate::specs::Fields::short_text_at))]
    pub fn short_text(&mut self, alloc: Global) -> Result<Text, ReadFault>
        ensures { Reads result (short_text_at self.old) self.new }
    {
        let length = self.byte()?;
        let Ok(text) = str::from_utf8(self.bytes(length as usize)?) else {
            return Err(ReadFault::NoForm);
        };
        Ok(Text::from_string(String::from_str(alloc, text)?))
    }

    /// The next text.
    #[tactic(auto, unfolding(crate::specs::Fields::text_at))]
    pub fn text(&mut self, alloc: Global) -> Result<Text, ReadFault>
        ensures { Reads result (text_at self.old) self.new }
    {
        let length = self.u32()?;
        let Ok(text) = str::from_utf8(self.bytes(length as usize)?) else {
            return Err(ReadFault::NoForm);
        };
        Ok(Text::from_string(String::from_str(alloc, text)?))
    }

    /// The next numbers of four bytes each, at most 255, after their number.
    #[tactic(auto, unfolding(crate::specs::Fields::numbers_at))]
    pub fn numbers(&mut self, alloc: Global) -> Result<Ids, ReadFault>
        ensures { Reads result (numbers_at self.old) self.new }
    {
        let count = self.byte()?;
        Ok(Ids::from_vec(self.each_number(alloc, count)?))
    }

    /// The next `count` numbers of four bytes each.
    fn each_number(&mut self, alloc: Global, count: u8) -> Result<Vec<u32>, ReadFault>
        ensures { ReadsAs (λ numbers. numbers.items) result
            (each_at (number_at 4) count self.old) self.new }
    {
        let mut numbers = Vec::with_capacity(alloc, count as usize)?;
        for _ in 0..count {
            numbers.push(self.u32()?)?;
        }
        Ok(numbers)
    }
}
