//! Tests of the judge: evidence that is made from keys, and evidence that is stored, each with what the judge says of it.
#![tactic(auto)]

#[cfg(test)]
mod evidence;
#[cfg(test)]
mod made_evidence;
#[cfg(test)]
mod pad_evidence;
#[cfg(test)]
mod stored_evidence;
