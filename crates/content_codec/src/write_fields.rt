//! Fields written as bytes: truth values, ids, moments, slugs and texts.

ghost use Rattle.std.specs.Prelude.{◌≡◌, ◌≤◌, ◌++◌, length, replicate, OnOk, IsUtf8};
ghost use Rattle.site_types.specs.Ids.{IsPageId, IsUserId, IsGroupId, IsWorkflowId};
ghost use Rattle.site_types.specs.Moment.{IsMoment};
ghost use Rattle.site_types.specs.Slug.{IsSlug};
ghost use Rattle.site_types.specs.Content.{text_form};
ghost use Rattle.byte_forms.specs.Fields.{truth_form, id_form, optional_id_form, moment_form, optional_moment_form, short_form, slug_form, ids_form, IfThere};

use crate::Writer;
use site_types::{GroupId, Ids, Moment, NoMemory, PageId, Slug, Text, UserId, WorkflowId};

impl Writer {
    /// Writes a truth value: a byte that is 0 or 1.
    pub fn truth(&mut self, truth: bool) -> Result<(), NoMemory>
        ensures { OnOk result (self.new ≡ self.old ++ truth_form truth) }
    {
        self.byte(if truth { 1 } else { 0 })
    }

    /// Writes the id of a page.
    pub fn page(&mut self, page: PageId) -> Result<(), NoMemory>
        ensures form { OnOk result (self.new ≡ self.old ++ id_form page) }
        ensures range { IsPageId page }
    {
        self.u32(page.get())
    }

    /// Writes the id of a user.
    pub fn user(&mut self, user: UserId) -> Result<(), NoMemory>
        ensures form { OnOk result (self.new ≡ self.old ++ id_form user) }
        ensures range { IsUserId user }
    {
        self.u32(user.get())
    }

    /// Writes the id of a group.
    pub fn group(&mut self, group: GroupId) -> Result<(), NoMemory>
        ensures form { OnOk result (self.new ≡ self.old ++ id_form group) }
        ensures range { IsGroupId group }
    {
        self.u32(group.get())
    }

    /// Writes the id of a workflow, or 0 for none.
    pub fn optional_workflow(&mut self, workflow: Option<WorkflowId>) -> Result<(), NoMemory>
        ensures form { OnOk result (self.new ≡ self.old ++ optional_id_form workflow) }
        ensures range { IfThere IsWorkflowId workflow }
    {
        match workflow {
            Some(workflow) => self.u32(workflow.get()),
            None => self.u32(0),
        }
    }

    /// Writes a moment.
    pub fn moment(&mut self, moment: Moment) -> Result<(), NoMemory>
        ensures form { OnOk result (self.new ≡ self.old ++ moment_form moment) }
        ensures range { IsMoment moment }
    {
        self.u64(moment.get())
    }

    /// Writes a moment, or the greatest number of eight bytes for none.
    #[tactic(auto, unfolding(byte_forms::specs::Fields::optional_moment_form))]
    pub fn optional_moment(&mut self, moment: Option<Moment>) -> Result<(), NoMemory>
        ensures form { OnOk result (self.new ≡ self.old ++ optional_moment_form moment) }
        ensures range { IfThere IsMoment moment }
    {
        match moment {
            Some(moment) => self.moment(moment),
            None => self.greatest(),
        }
    }

    /// Writes the greatest number of eight bytes.
    #[tactic(auto, unfolding(byte_forms::specs::Fields::u64_form))]
    fn greatest(&mut self) -> Result<(), NoMemory>
        ensures { OnOk result (self.new ≡ self.old ++ replicate 8 255) }
    {
        self.u64(u64::MAX)
    }

    /// Writes a slug that is not empty.
    pub fn slug(&mut self, slug: &Slug) -> Result<(), NoMemory>
        requires { 1 ≤ length slug.now }
        ensures form { OnOk result (self.new ≡ self.old ++ slug_form slug.now) }
        ensures is_slug { IsSlug slug.now }
    {
        self.short(slug.as_slice())
    }

    /// Writes at most 255 bytes after their number.
    pub fn short(&mut self, bytes: &[u8]) -> Result<(), NoMemory>
        requires { length bytes.now ≤ 255 }
        ensures { OnOk result (self.new ≡ self.old ++ short_form bytes.now) }
    {
        self.byte(bytes.len() as u8)?;
        self.bytes(bytes)
    }

    /// Writes a text, whose length is below 2^32.
    #[tactic(auto, unfolding(byte_forms::specs::Fields::u32_form))]
    pub fn text(&mut self, text: &Text) -> Result<(), NoMemory>
        requires { length text.now ≤ 4294967295 }
        ensures form { OnOk result (self.new ≡ self.old ++ text_form text.now) }
        ensures utf8 { IsUtf8 text.now }
    {
        let bytes = text.as_bytes();
        self.u32(bytes.len() as u32)?;
        self.bytes(bytes)
    }

    /// Writes at most 255 numbers of four bytes each after their number.
    pub fn numbers(&mut self, numbers: &Ids) -> Result<(), NoMemory>
        requires { length numbers.now ≤ 255 }
        ensures { OnOk result (self.new ≡ self.old ++ ids_form numbers.now) }
    {
        self.byte(numbers.len() as u8)?;
        for number in numbers.as_slice() {
            self.u32(*number)?;
        }
        Ok(())
    }
}
