// A file of functions of the list: decoded, and every part of the answer compared.
use crate::asked::Asked;
use crate::block::{FAMILIES, OLD, OLD_BYTE, OLD_SYMBOL, PATHS, STRINGS, SYMBOLS, Tables};
use crate::held::{numbers, refusal, table};
use semcode_functions::functions::FunctionBlock;
use semcode_symbols::functions::decode_functions;

const FUNCTIONS: usize = 1100;

// The last block: its place, its layout, its tables and its symbols.
fn last<'a>(list: &'a [u8], last: Option<FunctionBlock>, tables: Tables) -> Option<&'a [u8]> {
    match last {
        Some(FunctionBlock { code, parsed }) => tables.whole(numbers(list, &[code])?, parsed),
        None => tables.none(list),
    }
}

// An entry that asks for longer tables than there are is not the same; there is room for all symbols.
pub fn functions(asked: Asked) -> Option<&[u8]> {
    let [a, b, c, d] = asked.lengths;
    if FUNCTIONS < a || STRINGS < b || PATHS < c || FAMILIES < d {
        return None;
    }
    let mut starts = [OLD; FUNCTIONS];
    let mut symbols = [OLD_SYMBOL; SYMBOLS];
    let mut strings = [OLD; STRINGS];
    let mut paths = [OLD; PATHS];
    let mut families = [OLD_BYTE; FAMILIES];
    let decoded = decode_functions(
        asked.input,
        asked.origin,
        asked.revision,
        &mut symbols,
        &mut starts[..a],
        &mut strings[..b],
        &mut paths[..c],
        &mut families[..d],
    );
    let tables = Tables {
        symbols: &symbols,
        strings: &strings[..b],
        paths: &paths[..c],
        families: &families[..d],
    };
    match decoded {
        Ok(file) => {
            let cursor = file.cursor;
            let rest = numbers(
                asked.rest,
                &[0, file.functions, cursor % 4294967296, cursor / 4294967296],
            )?;
            let rest = table(rest, &starts[..a], file.functions)?;
            last(rest, file.last, tables)
        }
        Err(refused) => tables.none(table(refusal(asked.rest, refused)?, &starts[..a], 0)?),
    }
}
