// Looking up a name, for C. A crate of its own, so that the compiler inlines search and hash: beside the home check,
// which searches too, and the writer, which hashes, it would not. By itself a lookup takes 3 to 18 % less time than in
// one crate with both (docs/DECISIONS.md, "Why several export crates?").
#![tactic(auto)]

ghost use Rattle.std.specs.Prelude.{◌≡◌};
ghost use Rattle.reader.specs.Cases.{lookup_of};
ghost use Rattle.lookup_c.specs.IdAnswers.{id_answer, id_answer_of};

use reader::ToId;

// The C interface: a struct of words in place of an Option.
// 1, the id and the offset of the entry when the name was found, each 0 when not; and the number of buckets that the
// search reads. Four words are returned in two registers.
#[repr(C)]
#[derive(Clone, Copy)]
pub struct IdAnswer {
    pub found: u32,
    pub id: u32,
    pub buckets: u32,
    pub offset: u32,
}

// What a lookup answers, as numbers.
impl From<ToId> for IdAnswer {
    ghost from_gives = { λ t a. a ≡ id_answer_of (lookup_of t) };

    fn from(answer: ToId) -> IdAnswer {
        let buckets = answer.buckets;
        match answer.hit {
            Some(hit) => IdAnswer {
                found: 1,
                id: hit.id,
                buckets,
                offset: hit.offset,
            },
            None => IdAnswer {
                found: 0,
                id: 0,
                buckets,
                offset: 0,
            },
        }
    }
}

// The id of a name and the offset of its entry, or nothing.
#[unsafe(no_mangle)]
pub extern "C" fn cqdb_to_id(image: &[u8], name: &[u8]) -> IdAnswer
    ensures { result ≡ id_answer image.now name.now }
{
    IdAnswer::from(reader::to_id(image, name))
}
