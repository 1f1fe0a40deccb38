// Why a message is refused: the explaining call of include/sootlark.h.
ghost use Rattle.std.specs.Prelude.{◌≡◌};
ghost use Rattle.text.specs.Puts.{Put};
ghost use Rattle.message_explain.specs.Explaining.{explaining};
ghost use Rattle.explain_line.specs.Parts.{reason_number, field_word, field_of, element_of, needed_of, had_of, value_of, left_of, parts_of};

use explain_line::parts::Numbers;
use explain_line::put_field_name;
use message_explain::explain;

// The reason of the message at the front of the bytes, in parts: the field's name is put to the front of the lent bytes.
#[unsafe(no_mangle)]
pub extern "C" fn sootlark_explain(
    message: &[u8],
    version: u64,
    field: &mut [u8],
    size: &mut usize,
    parts: &mut u64,
    element: &mut u64,
    needed: &mut u64,
    had: &mut u64,
    value: &mut u64,
    left: &mut u64,
) -> u64
    ensures value { result ≡ reason_number (explaining version message.now) }
    ensures put { Put (field_word (field_of (explaining version message.now))) field.old 0 field.new size.new }
    ensures parts_after { parts.new ≡ parts_of (explaining version message.now) }
    ensures element_after { element.new ≡ element_of (explaining version message.now) }
    ensures needed_after { needed.new ≡ needed_of (explaining version message.now) }
    ensures had_after { had.new ≡ had_of (explaining version message.now) }
    ensures value_after { value.new ≡ value_of (explaining version message.now) }
    ensures left_after { left.new ≡ left_of (explaining version message.now) }
{
    let reason = explain(message, version);
    *size = put_field_name(field, 0, reason.and_then(|reason| reason.field));
    let numbers = Numbers::of(reason);
    *parts = numbers.parts;
    *element = numbers.element;
    *needed = numbers.needed;
    *had = numbers.had;
    *value = numbers.value;
    *left = numbers.left;
    numbers.number
}
