//! Tests with ample memory of public calls of `script_reader`, `feed_reader`, `update_text`, `run_output`, `made_run` and `plain_evaluator`.

#![tactic(auto)]

#[cfg(test)]
mod feed_reader_calls;
#[cfg(test)]
mod lawful_plans;
#[cfg(test)]
mod made_run_calls;
#[cfg(test)]
mod run_output_calls;
#[cfg(test)]
mod script_reader_calls;
#[cfg(test)]
mod scripts;
#[cfg(test)]
mod update_text_calls;
