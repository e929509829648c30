//! Puts the texts of entities into the string table of their block.
ghost use Rattle.std.specs.Prelude.{◌≡◌, ◌<◌, ◌^◌, ◌++◌, ◌∷◌, [], length, map, IfOk, OnOk, OnErr};
ghost use Rattle.std.specs.List.{flat_map};
ghost use Rattle.osm_entity.specs.Prefixes.{IsPrefix};
ghost use Rattle.osm_block_write.specs.Numbered.{user_number};
ghost use Rattle.osm_block_write.specs.Tables.{role_texts, tag_texts, texts_of, user_texts, with_texts};

use crate::options::PbfOptions;
use crate::texts::Table;
use osm_entity::{Body, Entity, Member, NoMemory, Tag};

/// Puts the texts of an entity into the table, and gives the number of its user, or 0 where
/// metadata is left out. At `Err` some of the texts may be there.
pub(crate) fn take_texts(
    texts: &mut Table,
    options: &PbfOptions,
    entity: &Entity,
) -> Result<u32, NoMemory>
    requires { length texts.old < 2 ^ 31 }
    ensures user { IfOk result (λ user. user ≡ user_number options.now texts.old entity.now.user) }
    ensures small { IfOk result (λ user. user < 2 ^ 31) }
    ensures ok { OnOk result (texts.new ≡ with_texts texts.old (texts_of options.now entity.now)) }
    ensures err { OnErr result (IsPrefix texts.old texts.new) }
{
    let user = take_user(texts, options, entity)?;
    take_tags(texts, entity.tags.as_slice())?;
    take_roles(texts, &entity.body)?;
    Ok(user)
}

// Puts the user into the table, where metadata is written.
fn take_user(texts: &mut Table, options: &PbfOptions, entity: &Entity) -> Result<u32, NoMemory>
    requires { length texts.old < 2 ^ 31 }
    ensures user { IfOk result (λ user. user ≡ user_number options.now texts.old entity.now.user) }
    ensures small { IfOk result (λ user. user < 2 ^ 31) }
    ensures ok { OnOk result (texts.new
        ≡ with_texts texts.old (user_texts options.now entity.now)) }
    ensures err { OnErr result (texts.new ≡ texts.old) }
{
    if options.omitmetadata {
        return Ok(0);
    }
    let number = texts.number(entity.user.as_slice())?;
    Ok(number as u32)
}

// Puts the keys and values of tags into the table.
fn take_tags(texts: &mut Table, tags: &[Tag]) -> Result<(), NoMemory>
    ensures ok { OnOk result (texts.new ≡ with_texts texts.old (flat_map tag_texts tags.now)) }
    ensures err { OnErr result (IsPrefix texts.old texts.new) }
{
    for tag in tags {
        texts.number(tag.key.as_slice())?;
        texts.number(tag.value.as_slice())?;
    }
    Ok(())
}

// Puts the roles of a relation's members into the table.
fn take_roles(texts: &mut Table, body: &Body) -> Result<(), NoMemory>
    ensures ok { OnOk result (texts.new ≡ with_texts texts.old (role_texts body.now)) }
    ensures err { OnErr result (IsPrefix texts.old texts.new) }
{
    match body {
        Body::Node(_) => Ok(()),
        Body::Way(_) => Ok(()),
        Body::Relation(members) => take_member_roles(texts, members.as_slice()),
    }
}

fn take_member_roles(texts: &mut Table, members: &[Member]) -> Result<(), NoMemory>
    ensures ok { OnOk result (texts.new ≡ with_texts texts.old (map (λ m. m.role) members.now)) }
    ensures err { OnErr result (IsPrefix texts.old texts.new) }
{
    for member in members {
        texts.number(member.role.as_slice())?;
    }
    Ok(())
}
