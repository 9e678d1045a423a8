//! The responses of a public page with a kid, and of a desk.
use api_routes::{Answer, to_response};
use public_view::{Card, LiveKid};
use site_types::{
    Block, Blocks, Body, Content, Items, NoMemory, PageId, PathText, Slug, Text, Url, UserId,
};
use std::alloc::Global;
use std::test::Fail;

/// The body of the public page below, with its kid.
const PUBLIC: &[u8] = b"{\"blocks\":[{\"page\":3}],\
    \"children\":[{\"id\":3,\"title\":\"News\",\"url\":\"/home/news/\"}],\
    \"id\":2,\"title\":\"Home\",\"url\":\"/home/\"}";

/// The body of the desk below.
const DESK: &[u8] = b"{\"blocks\":[{\"page\":3}],\"title\":\"New\"}";

/// A text of these letters.
fn text(alloc: Global, letters: &str) -> Result<Text, NoMemory> {
    Ok(Text::from_string(String::from_str(alloc, letters)?))
}

/// The URL of these letters.
fn url(alloc: Global, letters: &str) -> Result<Url, NoMemory> {
    Ok(Url::from_vec(String::from_str(alloc, letters)?.into_bytes()))
}

/// The page with this number.
fn page(number: u32) -> Result<PageId, NoMemory> {
    match PageId::new(number) {
        Some(page) => Ok(page),
        None => Err(NoMemory),
    }
}

/// One block, which links to page 3.
fn link(alloc: Global) -> Result<Blocks, NoMemory> {
    let mut blocks = Vec::new(alloc);
    blocks.push(Block::Page(page(3)?))?;
    Ok(Blocks::from_vec(blocks))
}

/// What is kept of a live page of user 1.
fn live_body() -> Option<Body> {
    Some(Body {
        owner: UserId::new(1)?,
        source: None,
        live: true,
        expired: false,
        shown: None,
        latest: None,
        scheduled: None,
        first_published: None,
        last_published: None,
        locked_by: None,
        workflow: None,
        moderation: None,
    })
}

/// The card of page 2 with the kid 3.
fn card(alloc: Global, path: PathText, slug: Slug, body: Body) -> Result<Card, NoMemory> {
    let mut kids = Vec::new(alloc);
    kids.push(LiveKid {
        id: page(3)?,
        title: text(alloc, "News")?,
        url: url(alloc, "/home/news/")?,
    })?;
    Ok(Card {
        id: page(2)?,
        path,
        depth: 2,
        numchild: 1,
        slug,
        body,
        url: url(alloc, "/home/")?,
        title: text(alloc, "Home")?,
        blocks: link(alloc)?,
        expire_at: None,
        kids: Items::from_vec(kids),
    })
}

#[test]
fn a_public_page_tells_its_kids(rt: HostRuntime) -> Result<(), Fail> {
    let alloc = rt.alloc();
    let (Some(path), Some(slug), Some(body)) = (
        PathText::read(b"00010001"),
        Slug::read(b"home"),
        live_body(),
    ) else {
        return Err("no card".into());
    };
    let answer = Answer::Public(card(alloc, path, slug, body)?);
    let response = to_response(alloc, &answer)?;
    assert_eq!(rt; response.body.as_slice(), PUBLIC);
    assert_eq!(rt; response.status.number(), 200);
    Ok(())
}

#[test]
fn a_desk_is_its_content(rt: HostRuntime) -> Result<(), Fail> {
    let alloc = rt.alloc();
    let Some(content) = Content::new(text(alloc, "New")?, link(alloc)?) else {
        return Err("no content".into());
    };
    let response = to_response(alloc, &Answer::Desk(content))?;
    assert_eq!(rt; response.body.as_slice(), DESK);
    assert_eq!(rt; response.status.number(), 200);
    Ok(())
}
