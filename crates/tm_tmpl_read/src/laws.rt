// Laws over the definition of reading, as the contract of a function that does nothing.
ghost use Rattle.std.specs.Prelude.{◌≡◌, ◌≢◌, ◌↔◌, Ok, Err};
ghost use Rattle.tm_tmpl_types.specs.declared.template.Template.{Template};
ghost use Rattle.tm_tmpl_types.specs.declared.template.TmplFault.{TmplFault};
ghost use Rattle.tm_tmpl_types.specs.declared.template.TmplFault.TheVariants.{NoMemory};
ghost use Rattle.tm_tmpl_read.specs.Grammar.{template_of};
ghost use Rattle.tm_tmpl_read.specs.Spelled.{IsSpelled, IsFaultOf};

/// A text is read as a template exactly where it spells it, and as a fault exactly where it leaves every template
/// there.
pub fn grammar(text: &[u8])
    ensures spelled { (t : Template) → (template_of text.now ≡ Ok t) ↔ IsSpelled text.now t }
    ensures left { (e : TmplFault) → e ≢ NoMemory → ((template_of text.now ≡ Err e) ↔ IsFaultOf text.now e) }
{
    let _ = text;
}
