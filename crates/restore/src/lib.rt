// The theorems that the walk's pieces give back the image, over the walk's definition. No code.
#![tactic(auto)]
