//! The site in memory.
ghost use Rattle.std.specs.Prelude.{◌≡◌, ℕ, IfOk};
ghost use Rattle.std.specs.Option.{option_copied, option_map};
ghost use Rattle.page_tree.specs.Rows.{rows_of, row_with};
ghost use Rattle.site_types.specs.declared.command.Command.{Command as AnyCommand};
ghost use Rattle.site_model.specs.World.{World};
ghost use Rattle.site_model.specs.Desks.{text_at};
ghost use Rattle.site_model.specs.Start.{new_world};
ghost use Rattle.site_model.specs.Laws.{FitsCommand};
ghost use Rattle.site_model.specs.Rights as rights;
ghost use Rattle.sha2.specs.Sha256.{sha256};
ghost use Rattle.sight_model.specs.Cards.{card_of, live_page, answer_of};
ghost use Rattle.sight_model.specs.References.{refs_shown};
ghost use Rattle.site_core.specs.Kids.{shown_of};
ghost use Rattle.site_core.specs.Standing.{StandsFor, IsReady, IsSame, Prepares, HasPlan};

use crate::asking::{plan_saving, prepare_step};
use crate::desk_parts::DeskParts;
use crate::finding::find_live;
use crate::references::first_refs;
use crate::showing::{card_in, shown_in};
use crate::texts::put_texts;
use desk_pairs::DeskPairs;
use grants::Grants;
use link_index::{Aliases, LinkIndex};
use page_store::Rows;
use part_commits::{Done, commit};
use public_view::Card;
use revision_shelf::Shelf;
use site_part::{Fault, Plan, TreePart};
use site_types::{Command, Content, Digest, Ids, Moment, NoMemory, PageId, Reply, Url, UserId};
use std::alloc::Global;
use time_table::Times;
use workflow::Flows;

/// The site in memory.
#[derive(Debug, Drop)]
pub struct Core {
    pub(crate) tree: TreePart,
    pub(crate) desks: DeskParts,
}

impl Core {
    /// A new site: the root alone, and user 1, a superuser whose token has this digest.
    pub fn new(alloc: Global, digest: &Digest) -> Result<Core, NoMemory>
        ensures { IfOk result (λ core. StandsFor core (new_world digest.now)) }
    {
        let Some(time) = Moment::new(0) else {
            unreachable!()
        };
        let desks = DeskParts::new(alloc)?;
        let rows = Rows::root(alloc)?;
        let mut grants = Grants::new(alloc);
        grants.reserve(1)?;
        grants.define_user(true, digest);
        Ok(Core {
            tree: TreePart {
                rows,
                shelf: Shelf::new(alloc),
                grants,
                flows: Flows::new(alloc),
                desk_pairs: DeskPairs::new(alloc),
                time,
                next_page: 2,
                next_revision: 1,
                times: Times::new(alloc),
                aliases: Aliases::new(alloc),
                links: LinkIndex::new(alloc),
            },
            desks,
        })
    }

    /// The plan of a command by a user at a moment, or why it is refused: the first of its rules that
    /// refuses it, in the order of their numbers, or out of memory. It changes nothing but spare
    /// room.
    ///
    /// It costs what the command's rules and the memory for it cost. A text is saved exactly if the
    /// caller has the desk: it costs a search and a copy of the text.
    pub fn prepare(
        &mut self,
        alloc: Global,
        command: &Command,
        caller: UserId,
        now: Moment,
    ) -> Result<Plan, Fault>
        requires { (world : World) × IsReady self.old world × FitsCommand command.now }
        ensures same { IsSame self.old self.new }
        ensures plan { (world : World) → IsReady self.old world → FitsCommand command.now
            → Prepares world now caller command.now self.new result }
    {
        match command {
            Command::SaveDesk { page, content } => {
                plan_saving(alloc, &self.tree, &self.desks, *page, caller, content)
            }
            _ => prepare_step(alloc, &mut self.tree, &mut self.desks, command, caller, now),
        }
    }

    /// Does what was planned for this site. It cannot fail, and takes no memory.
    ///
    /// It costs a few look-ups for each page that comes, goes or changes, for each page that gets
    /// another path or URL, and for each revision that comes or goes, and a few searches for each desk
    /// that is opened, saved or ends; and as much as `put_links` for the pages that get other links.
    pub fn commit(&mut self, plan: Plan) -> Reply
        requires { (world : World) × (now : ℕ) × (caller : ℕ) × (command : AnyCommand)
            × HasPlan self.old world now caller command plan }
        ensures told { result ≡ plan.reply }
        ensures stands { (world : World) (now caller : ℕ) (command : AnyCommand)
            (has : HasPlan self.old world now caller command plan) → StandsFor self.new has.after }
    {
        let Done {
            reply,
            opened,
            saved,
            shut,
        } = commit(&mut self.tree, plan);
        put_texts(&mut self.desks, opened, saved, shut);
        reply
    }

    /// The card of a page with its first live kids, or `None` exactly where there is no such page.
    ///
    /// It costs at most five look-ups, and a search and a few look-ups for each kid until a thousand
    /// live ones are found; it copies what the card tells.
    pub fn card(&self, alloc: Global, id: PageId) -> Result<Option<Card>, NoMemory>
        ensures { (world : World) → IsReady self.now world → IfOk result (λ card. card ≡ card_of world id) }
    {
        card_in(alloc, &self.tree.rows, &self.tree.shelf, id)
    }

    /// What everybody is answered at a URL: the card of the live page there, or `None` exactly where
    /// there is none.
    ///
    /// It costs what `find` and `card` cost.
    pub fn public(&self, alloc: Global, url: &[u8]) -> Result<Option<Card>, NoMemory>
        ensures { (world : World) → IsReady self.now world
            → IfOk result (λ card. card ≡ answer_of world url.now) }
    {
        match self.find(url) {
            None => Ok(None),
            Some(id) => self.card(alloc, id),
        }
    }

    /// The live page with this URL, or `None` exactly where there is none.
    ///
    /// It costs one look-up for each slug of the URL, and one or two for the page.
    pub fn find(&self, url: &[u8]) -> Option<PageId>
        ensures { (world : World) → IsReady self.now world → result ≡ live_page world url.now }
    {
        find_live(&self.tree.rows, url)
    }

    /// The first 1,000 pages that link to a page, rising, or `None` exactly if there is no such page.
    ///
    /// It costs a look-up, two searches and a look at each page that it answers.
    pub fn refs(&self, alloc: Global, id: PageId) -> Result<Option<Ids>, NoMemory>
        ensures { (world : World) → IsReady self.now world
            → IfOk result (λ refs. refs ≡ refs_shown world id) }
    {
        let _len = self.tree.rows.len();
        let Some(_) = self.tree.rows.row(id) else {
            return Ok(None);
        };
        let refs = first_refs(alloc, &self.tree.links, id)?;
        Ok(Some(refs))
    }

    /// The URL of a page, or `None` exactly where there is no such page. One look-up.
    pub fn url(&self, id: PageId) -> Option<&Url>
        ensures { (world : World) → IsReady self.now world
            → option_copied result ≡ option_map (λ row. row.url) (row_with id (rows_of world.part.tree)) }
    {
        self.tree.rows.url(id)
    }

    /// The content that a page shows, or `None` exactly if there is no such page or it shows none: an
    /// alias shows its source's. At most three look-ups.
    pub fn shown(&self, id: PageId) -> Option<&Content>
        ensures { (world : World) → IsReady self.now world → option_copied result ≡ shown_of world id }
    {
        shown_in(&self.tree.rows, &self.tree.shelf, id)
    }

    /// The text of a user's desk on a page, or `None` exactly if the user has no desk there. One search.
    pub fn desk(&self, page: PageId, user: UserId) -> Option<&Content>
        ensures { (world : World) → IsReady self.now world
            → option_copied result ≡ text_at world.desks page user }
    {
        self.desks.text(page, user)
    }

    /// The user whose token this is, by its SHA-256 digest, or `None` exactly where there is none.
    ///
    /// It costs the digest of the token, and one look-up.
    pub fn user_of(&self, token: &[u8]) -> Option<UserId>
        ensures { (world : World) → IsReady self.now world
            → result ≡ rights.user_of (sha256 token.now) world.part.users }
    {
        self.tree.grants.user_of(token)
    }
}
