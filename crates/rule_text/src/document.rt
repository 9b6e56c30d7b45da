ghost use Rattle.toml.specs.View.{table_view};
ghost use Rattle.rule_text.specs.Document.{document_setup as document_setup_in, rules_in};
ghost use Rattle.rule_text.specs.Steps.{Gives};

use crate::build::{ends_of, resolved_rules};
use crate::checks::{
    all_known, all_once, all_weigh, apart, no_extra, no_rule_extra, no_server_extra,
};
use crate::fault::{Place, RuleFault};
use crate::values::table_at;
use crate::written::{rule_list, server_list, service_of, sizes_of, tables_at, top};
use rule_table::Setup;
use std::alloc::Global;
use toml::Table;

/// The setup that the text of a rules file says.
///
/// The text is a TOML 1.1 document of at most 80 levels. Where it has faults, the answer is the first: `Syntax` where it is
/// no document; then field by field, as the file's format lists them, `Missing`, `Form` or `Range`; then `Extra`, a field
/// that its table may not have; then `Twice` of servers; then `UnknownServer`; then `Twice` of the servers of one rule;
/// then `ZeroTotal`. `Memory` may come at any time.
pub fn rules_of(alloc: Global, text: &[u8]) -> Result<Setup, RuleFault>
    ensures { Gives (λ s. s) result (rules_in text.now) }
{
    match toml::table_from_slice(alloc, text) {
        Ok(document) => document_setup(alloc, &document),
        Err(refused) if refused.is_memory() => Err(RuleFault::Memory),
        Err(_) => Err(RuleFault::Syntax),
    }
}

/// What a document says.
#[tactic(auto, unfolding(crate::specs::Document::document_setup))]
fn document_setup(alloc: Global, document: &Table) -> Result<Setup, RuleFault>
    ensures { Gives (λ s. s) result (document_setup_in (table_view document.now)) }
{
    let sizes = sizes_of(alloc, document)?;
    let service_table = table_at(alloc, document, top("service"))?;
    let service = service_of(alloc, service_table)?;
    let server_tables = tables_at(alloc, document, "server")?;
    let servers = server_list(alloc, &server_tables)?;
    let rule_tables = tables_at(alloc, document, "rule")?;
    let rules = rule_list(alloc, &rule_tables)?;
    no_extra(alloc, Place::Top, document)?;
    no_extra(alloc, Place::Service, service_table)?;
    no_server_extra(alloc, &server_tables)?;
    no_rule_extra(alloc, &rule_tables)?;
    apart(alloc, service, &servers)?;
    all_known(alloc, &servers, &rules)?;
    all_once(alloc, &rules)?;
    let rules = resolved_rules(alloc, &servers, &rules)?;
    all_weigh(&rules)?;
    let servers = ends_of(alloc, &servers)?;
    Ok(Setup::make(sizes, service, servers, rules))
}
