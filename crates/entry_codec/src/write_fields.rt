//! The fields of commands after their tags, written as bytes.

ghost use Rattle.std.specs.Prelude.{◌≡◌, ◌≤◌, ◌∷◌, ◌++◌, length, OnOk};
ghost use Rattle.site_types.specs.Ids.{IsPageId, IsUserId, IsGroupId, IsWorkflowId};
ghost use Rattle.site_types.specs.Moment.{IsMoment};
ghost use Rattle.site_types.specs.Slug.{IsSlug};
ghost use Rattle.site_types.specs.Content.{content_form};
ghost use Rattle.byte_forms.specs.Fields.{id_form, slug_form, truth_form, ids_form, optional_id_form, optional_moment_form, IfThere};
ghost use Rattle.byte_forms.specs.Contents.{IsContent};
ghost use Rattle.byte_forms.specs.Commands.{position_form, permission_form};

use crate::lists::{write_permission, write_position};
use content_codec::Writer;
use site_types::{
    Content, DIGEST_BYTES, Digest, GroupId, Ids, Moment, NoMemory, PageId, Permission, Position,
    Slug, UserId, WorkflowId,
};

/// Writes a command that has a page alone.
pub(crate) fn write_on_page(writer: &mut Writer, tag: u8, page: PageId) -> Result<(), NoMemory>
    ensures form { OnOk result (writer.new ≡ writer.old ++ (tag ∷ id_form page)) }
    ensures ranges { OnOk result (IsPageId page) }
{
    writer.byte(tag)?;
    writer.page(page)
}

/// Writes a creation.
pub(crate) fn write_create(
    writer: &mut Writer,
    parent: PageId,
    slug: &Slug,
    content: &Content,
) -> Result<(), NoMemory>
    requires { 1 ≤ length slug.now }
    ensures form { OnOk result (writer.new
        ≡ writer.old ++ (1 ∷ id_form parent ++ slug_form slug.now ++ content_form content.now)) }
    ensures ranges { OnOk result (IsPageId parent × IsSlug slug.now × IsContent content.now) }
{
    write_on_page(writer, 1, parent)?;
    writer.slug(slug)?;
    writer.content(content)
}

/// Writes a move.
pub(crate) fn write_move(
    writer: &mut Writer,
    page: PageId,
    target: PageId,
    position: Position,
) -> Result<(), NoMemory>
    ensures form { OnOk result (writer.new
        ≡ writer.old ++ (2 ∷ id_form page ++ id_form target ++ position_form position)) }
    ensures ranges { OnOk result (IsPageId page × IsPageId target) }
{
    write_on_page(writer, 2, page)?;
    writer.page(target)?;
    write_position(writer, position)
}

/// Writes a change of slug.
pub(crate) fn write_set_slug(writer: &mut Writer, page: PageId, slug: &Slug) -> Result<(), NoMemory>
    requires { 1 ≤ length slug.now }
    ensures form { OnOk result (writer.new
        ≡ writer.old ++ (4 ∷ id_form page ++ slug_form slug.now)) }
    ensures ranges { OnOk result (IsPageId page × IsSlug slug.now) }
{
    write_on_page(writer, 4, page)?;
    writer.slug(slug)
}

/// Writes an alias.
pub(crate) fn write_alias(
    writer: &mut Writer,
    source: PageId,
    parent: PageId,
    slug: &Slug,
) -> Result<(), NoMemory>
    requires { 1 ≤ length slug.now }
    ensures form { OnOk result (writer.new
        ≡ writer.old ++ (5 ∷ id_form source ++ id_form parent ++ slug_form slug.now)) }
    ensures ranges { OnOk result (IsPageId source × IsPageId parent × IsSlug slug.now) }
{
    write_on_page(writer, 5, source)?;
    writer.page(parent)?;
    writer.slug(slug)
}

/// Writes a copy.
pub(crate) fn write_copy(
    writer: &mut Writer,
    page: PageId,
    parent: PageId,
    slug: &Slug,
    deep: bool,
) -> Result<(), NoMemory>
    requires { 1 ≤ length slug.now }
    ensures form { OnOk result (writer.new
        ≡ writer.old ++ (7 ∷ id_form page ++ id_form parent ++ slug_form slug.now
        ++ truth_form deep)) }
    ensures ranges { OnOk result (IsPageId page × IsPageId parent × IsSlug slug.now) }
{
    write_on_page(writer, 7, page)?;
    writer.page(parent)?;
    writer.slug(slug)?;
    writer.truth(deep)
}

/// Writes a text that is saved.
pub(crate) fn write_save(
    writer: &mut Writer,
    page: PageId,
    content: &Content,
) -> Result<(), NoMemory>
    ensures form { OnOk result (writer.new
        ≡ writer.old ++ (9 ∷ id_form page ++ content_form content.now)) }
    ensures ranges { OnOk result (IsPageId page × IsContent content.now) }
{
    write_on_page(writer, 9, page)?;
    writer.content(content)
}

/// Writes a text that is filed.
pub(crate) fn write_file(
    writer: &mut Writer,
    page: PageId,
    go_live: Option<Moment>,
    expire: Option<Moment>,
) -> Result<(), NoMemory>
    ensures form { OnOk result (writer.new
        ≡ writer.old ++ (11 ∷ id_form page ++ optional_moment_form go_live
        ++ optional_moment_form expire)) }
    ensures ranges { OnOk result
        (IsPageId page × IfThere IsMoment go_live × IfThere IsMoment expire) }
{
    write_on_page(writer, 11, page)?;
    writer.optional_moment(go_live)?;
    writer.optional_moment(expire)
}

/// Writes a list of groups or tasks.
pub(crate) fn write_ids(writer: &mut Writer, tag: u8, ids: &Ids) -> Result<(), NoMemory>
    requires { length ids.now ≤ 16 }
    ensures { OnOk result (writer.new ≡ writer.old ++ (tag ∷ ids_form ids.now)) }
{
    writer.byte(tag)?;
    writer.numbers(ids)
}

/// Writes an assignment.
pub(crate) fn write_assign(
    writer: &mut Writer,
    page: PageId,
    workflow: Option<WorkflowId>,
) -> Result<(), NoMemory>
    ensures form { OnOk result (writer.new
        ≡ writer.old ++ (20 ∷ id_form page ++ optional_id_form workflow)) }
    ensures ranges { OnOk result (IsPageId page × IfThere IsWorkflowId workflow) }
{
    write_on_page(writer, 20, page)?;
    writer.optional_workflow(workflow)
}

/// Writes a user.
pub(crate) fn write_define_user(
    writer: &mut Writer,
    superuser: bool,
    digest: &Digest,
) -> Result<(), NoMemory>
    ensures form { OnOk result (writer.new
        ≡ writer.old ++ (25 ∷ truth_form superuser ++ digest.now)) }
    ensures ranges { OnOk result (length digest.now ≡ DIGEST_BYTES) }
{
    writer.byte(25)?;
    writer.truth(superuser)?;
    writer.bytes(&digest.bytes())
}

/// Writes a membership.
pub(crate) fn write_member(
    writer: &mut Writer,
    user: UserId,
    group: GroupId,
    on: bool,
) -> Result<(), NoMemory>
    ensures form { OnOk result (writer.new
        ≡ writer.old ++ (27 ∷ id_form user ++ id_form group ++ truth_form on)) }
    ensures ranges { OnOk result (IsUserId user × IsGroupId group) }
{
    writer.byte(27)?;
    writer.user(user)?;
    writer.group(group)?;
    writer.truth(on)
}

/// Writes a grant.
pub(crate) fn write_grant(
    writer: &mut Writer,
    group: GroupId,
    page: PageId,
    permission: Permission,
    on: bool,
) -> Result<(), NoMemory>
    ensures form { OnOk result (writer.new
        ≡ writer.old ++ (28 ∷ id_form group ++ id_form page ++ permission_form permission
        ++ truth_form on)) }
    ensures ranges { OnOk result (IsGroupId group × IsPageId page) }
{
    writer.byte(28)?;
    writer.group(group)?;
    writer.page(page)?;
    write_permission(writer, permission)?;
    writer.truth(on)
}
