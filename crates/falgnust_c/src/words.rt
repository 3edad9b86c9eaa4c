// The fields of records that start at given places, as words of a lent table: true where each record is there and all words fit; else zeros.
ghost use Rattle.evr0_section.specs.Head.{span_width};
ghost use Rattle.record_words.specs.Words.{text_whole, text_words, witness_whole, witness_words, Fills, Runs};
ghost use Rattle.path_words.specs.Words.{path_words, Fits};

// Of a proposition 5 words: the place and the length of its kind, owner, scope, type.
#[unsafe(no_mangle)]
pub extern "C" fn falgnust_proposition_words(
    payload: &[u8],
    starts: &[u64],
    words: &mut [u64],
) -> bool
    ensures { Fills (text_whole 0 3 payload.now) (text_words 0 3 payload.now) starts.now
        words.old words.new result }
{
    falgnust::words::falgnust_proposition_words(payload, starts, words)
}

// Of a proof 10 words: number, proposition, the place and the length of its rule's name, authority, first witness, how many witnesses, first
// parent, how many parents, operation.
#[unsafe(no_mangle)]
pub extern "C" fn falgnust_proof_words(payload: &[u8], starts: &[u64], words: &mut [u64]) -> bool
    ensures { Fills (text_whole 2 6 payload.now) (text_words 2 6 payload.now) starts.now
        words.old words.new result }
{
    falgnust::words::falgnust_proof_words(payload, starts, words)
}

// Of a witness 7 words: number, proposition, polarity, the place of its first digest, where its span starts and ends, the place of its second
// digest. A schema other than 2 means spans whose ends have 4 bytes.
// Kept (1a): C gives the schema as its number.
#[unsafe(no_mangle)]
pub extern "C" fn falgnust_witness_words(
    payload: &[u8],
    schema: u16,
    starts: &[u64],
    words: &mut [u64],
) -> bool
    ensures { Fills (witness_whole (span_width schema) payload.now) (witness_words (span_width schema) payload.now)
        starts.now words.old words.new result }
{
    falgnust::words::falgnust_witness_words(payload, schema, starts, words)
}

// The parent cells from a place on, a word each, as many as there are words.
#[unsafe(no_mangle)]
pub extern "C" fn falgnust_parent_words(payload: &[u8], at: usize, words: &mut [u64]) -> bool
    ensures { Runs payload.now at words.old words.new result }
{
    falgnust::words::falgnust_parent_words(payload, at, words)
}

// Of a text of a section, or of a string of a block, 2 words: the place and the length of its bytes.
#[unsafe(no_mangle)]
pub extern "C" fn falgnust_text_words(bytes: &[u8], starts: &[u64], words: &mut [u64]) -> bool
    ensures { Fills (text_whole 0 0 bytes.now) (text_words 0 0 bytes.now) starts.now
        words.old words.new result }
{
    falgnust::words::falgnust_text_words(bytes, starts, words)
}

// Of a path of a block 4 words and one for each of its components: event, site, root, how many components; kind, first and second number from the
// lowest bits on, 2, 32 and 16 of them. As many paths as are there and fit, from the first on: how many, and zeros past their words.
#[unsafe(no_mangle)]
pub extern "C" fn falgnust_path_words(
    code: &[u8],
    header_rev: u16,
    starts: &[u64],
    words: &mut [u64],
) -> usize
    ensures { Fits (path_words header_rev code.now) starts.now words.old words.new result }
{
    falgnust::words::falgnust_path_words(code, header_rev, starts, words)
}
