// What the schema of a payload decides.
ghost use Rattle.std.specs.Prelude.{◌≡◌, ◌≤◌};
ghost use Rattle.evr0_section.specs.Head.{is_schema, span_width, witness_size, witness_memory};

// Whether a payload of this schema is read.
// Kept (1a): callers bring any u16, as it was read; an enum of the two schemas would ask more of them.
pub fn is_schema(schema: u16) -> bool
    ensures { result ≡ is_schema schema }
{
    matches!(schema, 1 | 2)
}

// The bytes of a witness.
// Kept (1a): callers bring any u16; a witness under a schema that is neither 1 nor 2 has 84 bytes.
// Kept (2d): one function of both sizes is called as `by_schema(schema, 92, 84)`, and what the numbers are stands at each call.
#[tactic(auto, unfolding(evr0_section::specs::Head::span_width))]
pub fn witness_size(schema: u16) -> usize
    ensures { (result ≡ witness_size (span_width schema)) × (result ≤ 92) }
{
    if schema == 2 { 92 } else { 84 }
}

// What 14 counts for a witness.
// Kept (1a): callers bring any u16, as it was read.
#[tactic(auto, unfolding(evr0_section::specs::Head::witness_memory))]
pub fn witness_memory(schema: u16) -> usize
    ensures { (result ≡ witness_memory schema) × (result ≤ 96) }
{
    if schema == 2 { 96 } else { 84 }
}
