ghost use Rattle.std.specs.Prelude.{◌≡◌, ◌≤◌, map, IfOk, OnErr, OnOk};
ghost use Rattle.hy_core.specs.Canonical.{canonical_text, one_after_another};
ghost use Rattle.hybrid_run.specs.Headline.{Keeps};
ghost use Rattle.outside.specs.Outside.{Appends, AppendsPrefix, Rises};

use core_reader::print_module;
use hy_core::{Module, Text};
use hy_terms::Memory;
use outside::{Failed, Sink};
use std::alloc::Global;

/// The canonical text of each module, in order.
pub fn texts_of(alloc: Global, modules: &[Module]) -> Result<Vec<Text>, Memory>
    ensures { IfOk result (λ texts. texts.items ≡ map canonical_text modules.now) }
{
    let mut texts = Vec::new(alloc);
    for module in modules {
        let text = print_module(alloc, module)?;
        texts.push(Text::from_vec(text))?;
    }
    Ok(texts)
}

/// Writes each text, in order, by one write each.
pub fn write_texts<K: Sink>(texts: &[Text], sink: &mut K) -> Result<(), Failed>
    ensures ok { OnOk result
        (Appends (K.written sink.old) (K.written sink.new) (one_after_another texts.now)) }
    ensures prefix { OnErr result
        (AppendsPrefix (K.written sink.old) (K.written sink.new) (one_after_another texts.now)) }
    ensures rises { OnErr result (Rises (K.faults sink.old) (K.faults sink.new)) }
    ensures kept { Keeps (K.written sink.old) (K.written sink.new) }
    ensures counts { K.faults sink.old ≤ K.faults sink.new }
{
    for text in texts {
        match sink.write(text.as_slice()) {
            Ok(()) => {}
            Err(Failed) => return Err(Failed),
        }
    }
    Ok(())
}
